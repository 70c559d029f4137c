// The calls on a sheet.
ghost use Rattle.std.specs.Prelude.{◌≡◌, ◌+◌, ◌<◌, ◌≤◌, length};
ghost use Rattle.limits.specs.Numbers.{most_legs, most_hours, most_cost};
ghost use Rattle.columns.specs.Put.{put};
ghost use Rattle.sheets.specs.Places.{largest};
ghost use Rattle.sheets.specs.Form.{leg_line, leg_length};
ghost use Rattle.sheets.specs.Begun.{begun, begun_answer, with_leg};
ghost use Rattle.sheets.specs.Writing.{numbered_of, Begins, Takes, Ends, struck};

use super::{BegunSheet, ClosedSheet};
use crate::form::Form;
use crate::kind::SheetKind;
use crate::lines::{put_end, put_head, put_leg};
use crate::numbered::NumberedLeg;
use crate::tally::Tally;
use crate::tally::refusing::check_begin;
use limits::refusal::Refusal;
use std::marker::PhantomData;

impl<K: SheetKind> BegunSheet<K> {
    // Puts the first line at the front of the buffer.
    pub fn begin(form: Form, ports: usize, out: &mut [u8]) -> Result<BegunSheet<K>, Refusal>
        ensures { Begins K.CostKind.kind form ports out.old (begun_answer result) out.new }
    {
        check_begin::<K>(ports, out.len())?;
        put_head::<K>(out, form, ports);
        Ok(BegunSheet {
            tally: Tally::open(form, ports),
            kind: PhantomData,
        })
    }

    // Puts a leg line after the lines so far, if the end line fits after it.
    pub fn leg(&mut self, out: &mut [u8], line: NumberedLeg<K>) -> Result<(), Refusal>
        ensures { Takes K.CostKind.kind (begun self.old) (numbered_of K.CostKind.row line) out.old result (begun self.new) out.new }
    {
        self.tally.check_line(line, out.len())?;
        self.write_leg(out, line);
        Ok(())
    }

    // Puts a leg line that fits, and counts it.
    fn write_leg(&mut self, out: &mut [u8], line: NumberedLeg<K>)
        requires room { self.old.tally.end + leg_length K.CostKind.kind.places ≤ length out.old }
        requires few { self.old.tally.legs < most_legs }
        requires fits { (line.number < most_legs) × ((line.leg.hours ≤ most_hours) × (largest (K.CostKind.row line.leg.cost) ≤ most_cost)) }
        ensures sheet { begun self.new ≡ with_leg K.CostKind.kind.places (begun self.old) (numbered_of K.CostKind.row line) }
        ensures bytes { out.new ≡ put out.old self.old.tally.end (leg_line K.CostKind.kind.places (numbered_of K.CostKind.row line)) }
    {
        put_leg(out, self.tally.end, line);
        self.tally
            .count_leg(line.number, line.leg.hours, line.leg.cost);
    }

    // Puts the end line, which completes the sheet; where it does not fit, the sheet is handed back as it was.
    pub fn close(self, out: &mut [u8]) -> Result<ClosedSheet, BegunSheet<K>>
        ensures { Ends K.CostKind.kind self out.old result out.new }
    {
        if self.tally.check_close::<K>(out.len()).is_err() {
            return Err(self);
        }
        let BegunSheet { tally, kind: _ } = self;
        let length = put_end::<K>(out, &tally);
        Ok(ClosedSheet { length })
    }

    // Zeroes the bytes written so far, as many of them as the buffer has, and spends the sheet.
    pub fn strike(self, out: &mut [u8])
        ensures { out.new ≡ struck self.tally.end out.old }
    {
        let BegunSheet { tally, kind: _ } = self;
        let written = tally.end.min(out.len());
        out[0..written].fill(0);
    }
}

impl ClosedSheet {
    // How many bytes the sheet takes at the front of its buffer.
    pub fn length(&self) -> usize
        ensures { result ≡ self.now.length }
    {
        self.length
    }
}
