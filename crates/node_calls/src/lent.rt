//! What a call is lent.

use ring_world::StepList;
use std::alloc::Global;

/// What a flight waits by, reads, draws and appends by, and the steps that it records.
#[derive(Drop)]
pub(crate) struct Sources<'w, 'r, 'd, 's, W, R, D> {
    pub w: &'w mut W,
    pub alloc: Global,
    pub repo: &'r mut R,
    pub draw: &'d mut D,
    pub steps: &'s mut StepList,
}

/// What a call of a pass is lent: the pass too.
#[derive(Drop)]
pub struct Lent<'w, 'h, 'r, 'd, 's, W, H, R, D> {
    pub w: &'w mut W,
    pub alloc: Global,
    pub host: &'h mut H,
    pub repo: &'r mut R,
    pub draw: &'d mut D,
    pub steps: &'s mut StepList,
}
