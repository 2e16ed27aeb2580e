/// Is called before each step of an actor. It promises nothing.
pub trait Gate: Sync {
    /// Is called with the actor's number, and with how many steps it has made.
    fn pass(&self, actor: u32, step: u64);

    /// Is called after `pass` for a core or the controller, with how far it is too: a core's clock, in ticks, or how
    /// many events the controller has posted. It does nothing unless a gate says otherwise.
    fn reached(&self, _actor: u32, _step: u64, _place: u32) {}

    /// Is called when the actors that have not ended are dealt to so many threads, with how far all cores
    /// are together, in ticks. It does nothing unless a gate says otherwise.
    fn dealt(&self, _threads: u32, _ticks: u64) {}
}

/// Lets everybody pass.
#[derive(Clone, Copy, Drop)]
pub struct FreeGate;

impl Gate for FreeGate {
    fn pass(&self, _actor: u32, _step: u64) {}
}

/// Is called by an actor before each of its steps. It promises nothing.
pub trait Pass {
    /// Is called with how far the actor is: a core's clock, in ticks, or how many events the controller has posted.
    fn pass(&mut self, place: u32);
}

// An actor's way through the gate: the actor's number, and how many steps it has made.
#[derive(Drop)]
pub(crate) struct Passage<'a, G: Gate> {
    pub(crate) gate: &'a G,
    pub(crate) actor: u32,
    pub(crate) steps: u64,
}

impl<G: Gate> Pass for Passage<'_, G> {
    #[inline(always)]
    fn pass(&mut self, place: u32) {
        self.gate.pass(self.actor, self.steps);
        self.gate.reached(self.actor, self.steps, place);
        self.steps = self.steps.wrapping_add(1);
    }
}
