//! Tags by the names of their classes.

ghost use Rattle.std.specs.Prelude.{◌<◌, ◌≤◌};

use cases::{Answer, number_of};
use fp_ber::Class;

/// A tag.
#[derive(Clone, Copy)]
pub(crate) struct Tag {
    pub(crate) class: Class,
    pub(crate) number: u16,
}

/// The name of a class.
pub(crate) fn class_name(class: Class) -> &'static str {
    match class {
        Class::Universal => "universal",
        Class::Application => "application",
        Class::Context => "context",
        Class::Private => "private",
    }
}

/// A class by its name; another class, and a fault, for another text.
fn class_of(text: &str, out: &mut Answer) -> Class {
    match text {
        "universal" => Class::Universal,
        "application" => Class::Application,
        "context" => Class::Context,
        "private" => Class::Private,
        _ => {
            out.fail("no class");
            Class::Universal
        }
    }
}

/// The tag of a class and a number; another tag, and a fault, for other texts.
pub(crate) fn tag_of(class: &str, number: &str, out: &mut Answer) -> Tag
    ensures { (0 < result.number) × (result.number ≤ 16383) }
{
    let class = class_of(class, out);
    let number: u16 = number_of(number, out);
    if 0 < number && number <= 16_383 {
        return Tag { class, number };
    }
    out.fail("no number of a tag");
    Tag { class, number: 1 }
}
