//! The values of a group of DATA, from the first on (X3.9-1978, 9.1).
ghost use Rattle.std.specs.Prelude.{◌≡◌, ◌≤◌, ◌<◌, ◌++◌, min, true, false, length, option_to_list};
ghost use Rattle.std.specs.Option.{option_map};
ghost use Rattle.hep_machine.specs.Words.{value_among, values_given};
ghost use Rattle.hep_places.specs.CellRows.{Takes};
ghost use Rattle.hep_places.specs.InitialValues.{all_values};
ghost use Rattle.hep_places.specs.GroupValues.{AreNone, AreSame, left, repeated};

use hep_names::{Constants, repeat_of, value_of_constant};
use hep_source::{DataValue, Value};

/// The values of a group that are left. A repeated value is counted down and not written out.
#[derive(Drop)]
pub(crate) struct GroupValues<'a> {
    constants: &'a Constants,
    next: Value,
    /// The number of times that the next value is still repeated.
    count: u64,
    behind: &'a [DataValue],
}

// A value, and the number of times that it is repeated. `None` where a name has no value.
fn repeated(constants: &Constants, value: &DataValue) -> Option<(Value, u64)>
    ensures { option_map repeated result ≡ values_given (value_among constants.now) value.now }
{
    let count = repeat_of(constants, value.repeat)?;
    let item = value_of_constant(constants, value.constant)?;
    Some((item, count))
}

fn lesser(count: u64, most: u32) -> u32
    ensures { result ≡ min count most }
{
    if count < u64::from(most) {
        count as u32
    } else {
        most
    }
}

impl<'a> GroupValues<'a> {
    pub(crate) fn new(constants: &'a Constants, values: &'a [DataValue]) -> GroupValues<'a>
        ensures { AreSame (left result) (all_values (value_among constants.now) values.now) }
    {
        GroupValues {
            constants,
            next: Value::Int(0),
            count: 0,
            behind: values,
        }
    }

    // Goes on to a value, if there is one.
    fn enter(&mut self, value: Option<(Value, u64)>)
        requires { self.old.count ≡ 0 }
        ensures constants { self.new.constants ≡ self.old.constants }
        ensures behind { self.new.behind ≡ self.old.behind }
        ensures same { AreSame (left self.new) (option_to_list (option_map repeated value)
            ++ all_values (value_among self.old.constants.now) self.old.behind.now) }
    {
        if let Some((next, count)) = value {
            self.next = next;
            self.count = count;
        }
    }

    // Goes on to the next value in the list, if there is one.
    fn step(&mut self) -> bool
        requires { self.old.count ≡ 0 }
        ensures same { AreSame (left self.new) (left self.old) }
        ensures stepped { result ≡ true → length self.new.behind.now < length self.old.behind.now }
        ensures ended { result ≡ false → AreNone (left self.new) }
    {
        match self.behind {
            [] => false,
            [value, behind @ ..] => {
                self.behind = behind;
                self.enter(repeated(self.constants, value));
                true
            }
        }
    }

    // Goes on to the next value that is repeated at least once, if there is one.
    fn settle(&mut self)
        ensures same { AreSame (left self.new) (left self.old) }
        ensures ended { self.new.count ≡ 0 → AreNone (left self.new) }
    {
        while self.count == 0 {
            if !self.step() {
                return;
            }
        }
    }

    /// The next value, as often as it is repeated, but at most `most` times. `None` where no value is left.
    pub(crate) fn take(&mut self, most: u32) -> Option<(Value, u32)>
        requires { 1 ≤ most }
        ensures { Takes (left self.old) most result (left self.new) }
    {
        self.settle();
        if self.count == 0 {
            return None;
        }
        let count = lesser(self.count, most);
        self.count -= u64::from(count);
        Some((self.next, count))
    }
}
