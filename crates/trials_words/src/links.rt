use sg_links::{Links, Row};
use std::test::Fail;

#[test]
fn lists_are_made(rt: HostRuntime) -> Result<(), Fail> {
    let mut links = Links::make(rt.alloc(), 4, 2)?;
    assert_eq!(rt; (links.numbers(), links.heads()), (4, 2));
    links.push_back(1, 2);
    links.push_front(1, 3);
    assert_eq!(rt; links.next(3), Some(2));
    assert_eq!(rt; links.pop_front(1), Some(3));
    Ok(())
}

#[test]
fn lists_are_copied(rt: HostRuntime) -> Result<(), Fail> {
    let mut links = Links::make(rt.alloc(), 4, 2)?;
    links.push_back(0, 2);
    links.splice(1, 0);
    let copy = links.copy(rt.alloc())?;
    assert_eq!(rt;
        (copy.first(1), copy.len(1), copy.nth(0, 0)),
        (Some(2), 1, None)
    );
    Ok(())
}

#[test]
fn lists_in_use_are_counted(rt: HostRuntime) -> Result<(), Fail> {
    let mut links = Links::make(rt.alloc(), 4, 3)?;
    assert_eq!(rt; links.used(), 0);
    links.push_back(1, 2);
    assert_eq!(rt; links.used(), 2);
    links.pop_front(1);
    assert_eq!(rt; (links.used(), links.len(1)), (2, 0));
    Ok(())
}

#[test]
fn rows_are_copied(rt: HostRuntime) -> Result<(), Fail> {
    let mut row = Row::make(rt.alloc(), 5, 7)?;
    row.set(2, 1);
    let copy = row.copy(rt.alloc())?;
    assert_eq!(rt; copy.len(), 5);
    assert_eq!(rt; (copy.get(0), copy.get(2), copy.get(4)), (7, 1, 7));
    Ok(())
}
