use sqlite_items::Items;

/// Bytes that go out: ASCII, lines ended by one newline.
#[derive(Debug, Drop)]
pub struct Text {
    pub bytes: Items<u8>,
}
