// Why a line is refused.
ghost use Rattle.std.specs.Prelude.{◌≡◌};
ghost use Rattle.limits.specs.Refusals.{answer};
ghost use Rattle.sheets.specs.Begun.{tallied, room_refusal, begin_refusal, number_refusal_below, line_refusal, close_refusal};
ghost use Rattle.sheets.specs.Writing.{numbered_of};

use super::Tally;
use crate::form::{HEAD_LENGTH, end_line_length, leg_line_length};
use crate::kind::SheetKind;
use crate::numbered::NumberedLeg;
use charts::limited::{check_leg, check_port_count};
use limits::refusal::Refusal;
use limits::{MOST_LEGS, MOST_PORTS};

fn check_room(needed: usize, len: usize) -> Result<(), Refusal>
    ensures { result ≡ answer (room_refusal needed len) tt }
{
    if needed <= len {
        Ok(())
    } else {
        Err(Refusal::Length)
    }
}

// A beginning needs room for the first line and the end line.
pub(crate) fn check_begin<K: SheetKind>(ports: usize, len: usize) -> Result<(), Refusal>
    ensures { result ≡ answer (begin_refusal K.CostKind.kind.places ports len) tt }
{
    check_port_count(MOST_PORTS, ports)?;
    check_room(HEAD_LENGTH + end_line_length::<K>(), len)
}

impl Tally {
    // Whether the next leg can have this number, where numbers are below `most`.
    pub fn check_number(&self, most: usize, number: usize) -> Result<(), Refusal>
        ensures { result ≡ answer (number_refusal_below most (tallied self.now) number) tt }
    {
        if number < most && self.least <= number && self.legs < MOST_LEGS {
            Ok(())
        } else {
            Err(Refusal::Number)
        }
    }

    // Whether this leg line can be taken in a buffer of so many bytes: the end line has to fit after it.
    pub(crate) fn check_line<K: SheetKind>(
        &self,
        line: NumberedLeg<K>,
        len: usize,
    ) -> Result<(), Refusal>
        ensures { result ≡ answer (line_refusal K.CostKind.kind (tallied self.now) (numbered_of K.CostKind.row line) len) tt }
    {
        self.check_number(MOST_LEGS, line.number)?;
        check_leg(self.ports, line.leg)?;
        check_room(
            self.end + leg_line_length::<K>() + end_line_length::<K>(),
            len,
        )
    }

    // Whether the end line fits a buffer of so many bytes.
    pub(crate) fn check_close<K: SheetKind>(&self, len: usize) -> Result<(), Refusal>
        ensures { result ≡ answer (close_refusal K.CostKind.kind.places (tallied self.now) len) tt }
    {
        check_room(self.end + end_line_length::<K>(), len)
    }
}
