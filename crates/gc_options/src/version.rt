//! The version: of the program, of the library and of their packages. It is defined here alone.

/// What `geocom --version` says after the name. The first number is that of the library's calls, `GEOCOM_VERSION` of
/// `geocom.h`, and of its soname.
pub const VERSION: &str = "2.0.0";
