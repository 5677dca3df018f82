use lapd_cli_side_lines::LineStyle;

/// Which lines a live side prints, and how.
#[derive(Clone, Copy)]
pub struct Style {
    /// Whether each line begins with its moment, in milliseconds since the start. In an object it
    /// is the last member, `time`.
    pub time: bool,
    /// Whether the lines of frames are left out.
    pub quiet: bool,
    /// Whether lines are words or JSON objects.
    pub lines: LineStyle,
}
