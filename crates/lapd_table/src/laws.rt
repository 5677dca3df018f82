//! Laws of a table. Calling them does nothing.

ghost use Rattle.std.specs.Prelude.{◌≡◌, ℕ, List, [], Some};
ghost use Rattle.lapd_frame.specs.declared.Side.{Side};
ghost use Rattle.lapd_link_definition.specs.End.{End};
ghost use Rattle.lapd_table.specs.declared.link_id.LinkId.{LinkId};
ghost use Rattle.lapd_link_definition.specs.declared.event.LinkFault.{LinkFault};
ghost use Rattle.lapd_link_definition.specs.declared.out.Out.{Out};
ghost use Rattle.lapd_link_definition.specs.Input.{Input};
ghost use Rattle.lapd_table.specs.declared.link_table.LinkTable.{LinkTable};
ghost use Rattle.lapd_table.specs.declared.table_fault.TableFault.{TableFault};
ghost use Rattle.lapd_table.specs.LinkTable.{IsUnchanged, StepsAt, RefusesAt, HasDispatched, IsForNoLink};
ghost use Rattle.lapd_table.specs.Alone.{Arrival, Octets, Asked, Ends, IsAsAlone, Follows};

/// After any list of inputs, a link in a table is in the same state as a link alone that received
/// its part of them, and sends the same. Received octets, requests and timer expiries may arrive in
/// any order.
pub fn link_is_as_it_is_alone()
    ensures { (side : Side) (arrivals : List Arrival) (ends : Ends) (id : LinkId) (e : End)
        → ends id ≡ Some e → IsAsAlone side arrivals ends id e }
{}

/// The calls `dispatch`, `handle` and `give` of a table are steps of the definition of links alone.
/// If the links of a table represent some ends, then after a call they represent the ends after one
/// step, with the outputs that the call returned. After a refused call they are unchanged, and
/// nothing is sent.
pub fn calls_are_steps()
    ensures dispatched { (old new : LinkTable) (octets : List ℕ) (id : LinkId) (outs : List Out)
        → HasDispatched old new octets id outs → Follows old new (Octets octets) id outs }
    ensures not_dispatched { (old new : LinkTable) (octets : List ℕ) (id : LinkId)
        (fault : TableFault) → IsForNoLink old octets fault → IsUnchanged old new
        → Follows old new (Octets octets) id [] }
    ensures stepped { (old new : LinkTable) (id : LinkId) (input : Input) (outs : List Out)
        → StepsAt old new id input outs → Follows old new (Asked id input) id outs }
    ensures refused { (old new : LinkTable) (id : LinkId) (input : Input) (fault : LinkFault)
        → RefusesAt old id input fault → IsUnchanged old new
        → Follows old new (Asked id input) id [] }
{}
