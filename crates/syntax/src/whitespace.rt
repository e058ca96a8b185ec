// Whitespace.

// Which whitespace is left out around tags: each flag is off by default.
#[derive(Clone, Copy, Debug, Default, PartialEq, Eq)]
pub struct WhitespaceConfig {
    pub keep_trailing_newline: bool,
    pub lstrip_blocks: bool,
    pub trim_blocks: bool,
}
