/// A core's entry into a round.
#[derive(Clone, Copy, Debug, PartialEq, Eq)]
pub struct Entry {
    /// The round's number, from 0.
    pub round: u32,
    /// How many events the round's plan includes: one number for all cores.
    pub used: u32,
    /// How many events the core had seen as it entered.
    pub seen: u32,
    /// Whether this core's seen count became the round's count.
    pub won: bool,
}
