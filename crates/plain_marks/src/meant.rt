use outside::Mark;

/// What a list of marks means to what takes marks from its front: what is made of those, and the
/// marks that are left; that the marks end too early; or the marks from the first one on that is
/// another than what is taken there.
#[derive(Drop)]
pub enum Meant<'a, T> {
    Done(T, &'a [Mark]),
    More,
    Off(&'a [Mark]),
}
