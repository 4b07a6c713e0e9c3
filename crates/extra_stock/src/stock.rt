/// The extras that stand in no chain: judges, one of each name, which never do, and spares.
#[derive(Drop)]
pub struct Stock<E> {
    pub judges: Vec<E>,
    pub spare: Vec<E>,
}
