use sg_outside::{Gate, Phase};

/// A gate as some workers of a larger number pass it: the first of them has the number `start`.
#[derive(Clone, Copy)]
pub struct Shifted<'a, G> {
    pub gate: &'a G,
    pub start: u32,
}

impl<'a, G: Gate> Gate for Shifted<'a, G> {
    fn before(&self, phase: Phase, worker: u32, turn: u32) {
        self.gate
            .before(phase, self.start.saturating_add(worker), turn);
    }

    fn may_hold(&self) -> bool {
        self.gate.may_hold()
    }
}
