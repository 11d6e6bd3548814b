//! The rules that fit a call.

ghost use Rattle.std.specs.Prelude.{◌≡◌, ◌+◌, length, nat_eq};
ghost use Rattle.std.specs.Cmp.Lexicographic.{pointwise};
ghost use Rattle.jiff_core.specs.Weekday.{monday_zero};
ghost use Rattle.fp_records.specs.Choice.{fits};

use crate::local_time::LocalTime;
use crate::rule::Rule;

/// The parts of a call that rules depend on: the calling digits, none if there is no calling number, and the local
/// time.
#[derive(Clone, Copy)]
pub(crate) struct Call<'a> {
    pub(crate) calling: &'a [u8],
    pub(crate) time: LocalTime,
}

/// Whether two lists of the same length have the same octets. They are compared one by one: if a number has many rules,
/// most prefixes differ from the calling number in one of the first digits.
fn all_same(one: &[u8], other: &[u8]) -> bool
    requires { length one.now ≡ length other.now }
    ensures { result ≡ pointwise nat_eq one.now other.now }
{
    for place in 0..one.len() {
        if one[place] != other[place] {
            return false;
        }
    }
    true
}

impl Call<'_> {
    /// Whether a rule fits: its prefix begins the calling digits, its days contain the weekday, and its window contains
    /// the minute.
    pub(crate) fn fits(&self, rule: &Rule) -> bool
        ensures { result ≡ fits self.now.calling.now (monday_zero self.now.time.weekday + 1) self.now.time.minute rule.now }
    {
        let prefix = rule.prefix.as_slice();
        let Some(front) = self.calling.get(..prefix.len()) else {
            return false;
        };
        all_same(prefix, front)
            && rule.days.has(self.time.weekday)
            && rule.window.holds(self.time.minute)
    }
}
