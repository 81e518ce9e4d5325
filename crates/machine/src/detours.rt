// A chain by its first command, and the context in which it runs.
#[derive(Clone, Copy, Default)]
pub struct Detour {
    pub link: Option<u32>,
    pub context: u32,
}
