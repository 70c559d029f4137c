// A leg and its number.
use charts::Leg;

#[derive(Clone, Copy)]
pub struct NumberedLeg<K> {
    pub number: usize,
    pub leg: Leg<K>,
}
