//! Which files the fields of a program are read from.

ghost use Rattle.std.specs.Prelude.{◌≡◌, map};
ghost use Rattle.std.specs.Option.{option_copied};
ghost use Rattle.sg_session.specs.Bindings as spec;

use sg_ast::Name;
use sg_words::Items;

/// The file that a field's name is bound to.
#[derive(Debug, Drop)]
pub struct Bind {
    pub name: Name,
    pub file: String,
}

/// Which files the fields of a program are read from. Of two bindings of one name the first counts.
#[derive(Debug, Drop)]
pub struct Binds {
    pub list: Items<Bind>,
}

/// The file that a name is bound to.
pub fn file_bound<'a>(binds: &'a Binds, name: &Name) -> Option<&'a str>
    ensures { option_copied result ≡ spec.file_bound (map spec.binding_read binds.now.list) name.now }
{
    for bind in binds.list.as_slice() {
        if name.is(&bind.name) {
            return Some(bind.file.as_str());
        }
    }
    None
}
