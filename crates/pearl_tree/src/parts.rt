// A list in a tree.

ghost use Rattle.std.specs.Prelude.{◌≡◌};

/// Parts of a node that stand one after the other. It has no view as a list: a type that contains itself through a
/// list that has one is refused.
#[derive(Drop)]
pub struct Parts<T> {
    items: Vec<T>,
}

impl<T> Parts<T> {
    /// These parts. What memory the list had to spare is given back.
    pub fn new(mut items: Vec<T>) -> Parts<T>
        ensures { result.items.items ≡ items.items }
    {
        items.shrink_to_fit();
        Parts { items }
    }

    /// The parts as they were handed in.
    pub fn into_vec(self) -> Vec<T>
        ensures { result ≡ self.items }
    {
        let Parts { items } = self;
        items
    }

    /// The parts, in order.
    pub fn as_slice(&self) -> &[T]
        ensures { result.now ≡ self.now.items.items }
    {
        self.items.as_slice()
    }
}
