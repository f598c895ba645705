// The lists that a caller lends for the positions of a scene: of its ids in order, and of the ends of its edges.

#[derive(Drop)]
pub struct Positions<'a> {
    pub order: &'a mut [usize],
    pub starts: &'a mut [usize],
    pub stops: &'a mut [usize],
}
