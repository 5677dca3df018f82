ghost use Rattle.std.specs.Prelude.{◌≡◌, [], ◌∷◌};
ghost use Rattle.std.specs.List.{All};
ghost use Rattle.lapd_tei.specs.Out.{sent, IsInRange};

use crate::TeiMessage;
use arrayvec::ArrayVec;
use lapd_frame::Tei;
use lapd_timers::Timer;

/// An output of TEI management (Q.921 5.3).
#[derive(Clone, Copy, Debug, Default, PartialEq, Eq)]
pub enum TeiOut {
    /// Send this message.
    Send(TeiMessage),
    /// Start this timer, T201 or T202, or restart it if it runs.
    Start(Timer),
    /// Stop this timer, which runs.
    Stop(Timer),
    /// The terminal has been assigned this TEI.
    Got(Tei),
    /// The terminal no longer has this TEI.
    Gone(Tei),
    /// The terminal did not obtain a TEI, and stopped requesting one.
    #[default]
    Failed,
    /// The network side has assigned the TEI.
    Given(Tei),
    /// The TEI is free again: no terminal responded to its check, or it was removed on request.
    Free(Tei),
    /// One terminal responded to the check of the TEI.
    InUse(Tei),
    /// More than one terminal responded to the check: the TEI is removed.
    Doubled(Tei),
}

/// The outputs of one step, in order, at most six.
pub type TeiOuts = ArrayVec<TeiOut, 6>;

/// No output.
pub fn no_outs() -> TeiOuts
    ensures items { result.items ≡ [] }
    ensures in_range { All IsInRange result.items }
{
    TeiOuts::new()
}

/// One output.
pub fn one_out(out: TeiOut) -> TeiOuts
    ensures items { result.items ≡ out ∷ [] }
    ensures in_range { IsInRange out → All IsInRange result.items }
{
    let mut outs = TeiOuts::new();
    outs.push(out);
    outs
}

/// Two outputs, in this order.
pub fn two_outs(first: TeiOut, second: TeiOut) -> TeiOuts
    ensures items { result.items ≡ first ∷ second ∷ [] }
    ensures in_range { IsInRange first → IsInRange second → All IsInRange result.items }
{
    let mut outs = TeiOuts::new();
    outs.push(first);
    outs.push(second);
    outs
}

/// Three outputs, in this order.
pub fn three_outs(first: TeiOut, second: TeiOut, third: TeiOut) -> TeiOuts
    ensures items { result.items ≡ first ∷ second ∷ third ∷ [] }
    ensures in_range { IsInRange first → IsInRange second → IsInRange third
        → All IsInRange result.items }
{
    let mut outs = TeiOuts::new();
    outs.push(first);
    outs.push(second);
    outs.push(third);
    outs
}

/// Four outputs, in this order.
pub fn four_outs(first: TeiOut, second: TeiOut, third: TeiOut, fourth: TeiOut) -> TeiOuts
    ensures items { result.items ≡ first ∷ second ∷ third ∷ fourth ∷ [] }
    ensures in_range { IsInRange first → IsInRange second → IsInRange third → IsInRange fourth
        → All IsInRange result.items }
{
    let mut outs = TeiOuts::new();
    outs.push(first);
    outs.push(second);
    outs.push(third);
    outs.push(fourth);
    outs
}

/// The messages that these outputs send, in order.
pub fn sent(outs: &TeiOuts) -> ArrayVec<TeiMessage, 6>
    ensures { result.items ≡ sent outs.now.items }
{
    let mut messages = ArrayVec::new();
    for out in outs.as_slice() {
        if let TeiOut::Send(message) = out {
            messages.push(*message);
        }
    }
    messages
}
