use schedule::fault::EntryFault;

// How a run went: how many entries the ring accepted and refused, and the fault that ended it, if one did.
#[derive(Clone, Copy, Default)]
pub struct Tally {
    pub accepted: usize,
    pub refused: usize,
    pub fault: Option<EntryFault>,
}
