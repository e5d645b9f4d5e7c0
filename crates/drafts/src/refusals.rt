// The refusals of drafts.
ghost use Rattle.std.specs.Prelude.{◌≡◌};
ghost use Rattle.basics.specs.declared.refusal.Layer as Layer;

use basics::refusal::{Layer, Reason, Refusal};

// A refusal of the drafts, which names no place.
pub(crate) fn refused(reason: Reason) -> Refusal
    ensures { result ≡ record { reason = reason; layer = Layer.Drafts; line = 0; field = 0; byte = 0 } }
{
    Refusal::new(reason, Layer::Drafts)
}
