use interference::transmission::Transmission;

/// A plan that nobody has checked yet: its transmissions, step after step, and how many of them each step has.
#[derive(Clone, Copy)]
pub struct Draft<'a> {
    pub transmissions: &'a [Transmission],
    pub counts: &'a [u16],
}
