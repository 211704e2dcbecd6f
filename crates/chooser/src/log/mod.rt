// The proposals of all stages. Every chooser of this crate keeps one and decides by a rule over it.
pub mod methods;
pub mod stage;

use stage::Stage;

// One stage for each of 1 to 32, in order.
#[derive(Drop)]
pub struct Log {
    stages: [Stage; 32],
}
