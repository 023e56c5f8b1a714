// The SiRad frames (paper 01, "SiRad"; paper 02, (ii)): their types, definitions and laws.
#![tactic(auto)]

// What an identifier announces; the frames with a size field carry their kind. `Unknown` is a case of its own and no None: the definitions
// `kind_of`, `known` and `body` are over it.
#[derive(Clone, Copy)]
pub enum Kind {
    Sized(u32),
    Targets,
    Status,
    Flags,
    Unknown,
}
