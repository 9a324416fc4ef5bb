//! What a worker hands back.

use crate::fault::RunFault;
use kr_records::{EngineName, Share};
use kr_workers::LeftOut;
use std::marker::Model;

/// What a worker hands back: its seat's share, the steps that it left out, each told at the end of a prefix of what
/// the share has seen, and why it gave up, where it did.
#[derive(Drop)]
pub struct Report<K: EngineName> {
    pub share: Share<K>,
    pub left_out: Vec<LeftOut>,
    pub failed: Option<RunFault>,
}

impl<K: EngineName> Model for Report<K> {
    ghost use Rattle.kr_threads.specs.Told.{Reported, AreTold};

    ghost Value = { Reported };

    ghost view = { λ r. record { share = r.share; left_out = r.left_out.items; failed = r.failed } };

    ghost invariant = { λ r. AreTold K.table K.opening r.share.view r.left_out.items };
}
