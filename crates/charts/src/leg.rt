// A leg, and what a chart shows under a number.
ghost use Rattle.charts.specs.Texts.{leg_text, entry_text};

use std::fmt;

#[derive(Clone, Copy, PartialEq, Eq, Debug)]
pub struct Leg<K> {
    pub from: u16,
    pub to: u16,
    pub hours: u32,
    pub cost: K,
}

#[derive(Clone, Copy, PartialEq, Eq, Debug)]
pub enum Entry<K> {
    Blank,
    Leg(Leg<K>),
    // what breaks a limit
    Over,
}

impl<K: fmt::Display> fmt::Display for Leg<K> {
    ghost output = { leg_text K.Display.output };

    fn fmt<W: fmt::Write>(&self, f: &mut fmt::Formatter<W>) -> fmt::Result {
        write!(
            f,
            "from {} to {}, {} hours, {}",
            self.from, self.to, self.hours, self.cost
        )
    }
}

impl<K: fmt::Display> fmt::Display for Entry<K> {
    ghost output = { entry_text K.Display.output };

    fn fmt<W: fmt::Write>(&self, f: &mut fmt::Formatter<W>) -> fmt::Result {
        match self {
            Entry::Blank => write!(f, "blank"),
            Entry::Leg(leg) => write!(f, "{leg}"),
            Entry::Over => write!(f, "over"),
        }
    }
}
