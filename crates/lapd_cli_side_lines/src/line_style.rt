/// How a side prints its lines.
#[derive(Clone, Copy)]
pub enum LineStyle {
    /// In words; a frame as its trace line.
    Text,
    /// Each line as a JSON object.
    Json,
}
