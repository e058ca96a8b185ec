// The delimiters of a template language: a draft of them, and the settings that are built from it.

#![tactic(auto)]

mod delimiter;
mod draft;
mod fault;
mod name;
mod settings;
mod table;
mod whitespace;

pub use delimiter::Delimiter;
pub use draft::Draft;
pub use fault::SyntaxFault;
pub use name::DelimiterName;
pub use settings::Settings;
pub use whitespace::WhitespaceConfig;
