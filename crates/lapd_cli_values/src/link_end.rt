//! The configuration of `answer`.

ghost use Rattle.std.specs.Prelude.{◌<◌, ◌≢◌};
ghost use Rattle.lapd_frame.specs.declared.Sapi.TheVariants.{Management};

use lapd_link_definition::{Params, Sapi, Side, Tei};

/// The configuration of one end of a link.
#[derive(Clone, Copy)]
pub struct LinkEnd {
    /// The end's side.
    pub side: Side,
    /// The SAPI of the link, 0 or 16.
    pub sapi: Sapi,
    /// The TEI of the link, 0 to 126.
    pub tei: Tei,
    /// The parameters of the link.
    pub params: Params,
    ghost has_links: { sapi ≢ Management },
    ghost own: { tei < 127 },
}
