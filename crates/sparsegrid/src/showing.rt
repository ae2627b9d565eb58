/// What a run that performs commands writes of them: their texts, each after its command; or, in their place, where no command is
/// refused, the image of the last state, or advice on the layouts for it; or a journal of the containers.
#[derive(Clone, Copy, Debug, PartialEq, Eq)]
pub enum Showing {
    Texts,
    Image,
    Advice,
    Changes,
}
