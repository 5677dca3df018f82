/// The format of a capture.
#[derive(Clone, Copy)]
pub(crate) enum Format {
    /// pcap.
    Pcap,
    /// pcapng.
    Pcapng,
}
