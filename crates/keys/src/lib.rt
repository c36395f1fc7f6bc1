// The names of a table's slots: looked for, and told apart, whatever a name is.
//
// No public function has a `requires`: each answers for every input.
#![tactic(auto)]

ghost use Rattle.std.specs.Prelude.{◌≡◌, not, ◌||◌, position};
ghost use Rattle.history.specs.Slots.{none_bears};
ghost use Rattle.keys.specs.Slots.{is_active, is_free, naming, bears, distinct};

// What names a slot.
#[derive(Clone, Copy)]
pub struct Slot<K> {
    // 1 where a subject stands in it
    pub active: u8,
    pub key: K,
}

impl<K: PartialEq> Slot<K> {
    fn is_active(&self) -> bool
        ensures { result ≡ is_active self.now }
    {
        self.active == 1
    }

    // Is it active, with this name?
    fn bears(&self, key: &K) -> bool
        ensures { result ≡ bears K.eq key.now self.now }
    {
        self.is_active() && *key == self.key
    }

    // Is it free, or does none of the others bear its name?
    fn stands_alone(&self, others: &[Slot<K>]) -> bool
        ensures { result ≡ (not (is_active self.now) || none_bears (naming K.eq) self.now.key others.now) }
    {
        !self.is_active() || find(others, &self.key).is_none()
    }
}

// The slot of the active subject with this name.
pub fn find<K: PartialEq>(slots: &[Slot<K>], key: &K) -> Option<usize>
    ensures { result ≡ position (bears K.eq key.now) slots.now }
{
    slots.iter().position(|s| s.bears(key))
}

// The slot that the next subject fills.
pub fn lowest_free<K: PartialEq>(slots: &[Slot<K>]) -> Option<usize>
    ensures { result ≡ position is_free slots.now }
{
    slots.iter().position(|s| !s.is_active())
}

// Has each active slot a name of its own? Each is compared with those after it.
pub fn all_distinct<K: PartialEq>(slots: &[Slot<K>]) -> bool
    ensures { result ≡ distinct K.eq slots.now }
{
    let mut rest = slots;
    // Each slot is looked for in those after it, and no iterator gives the tails of a slice.
    while let Some((s, after)) = rest.split_first() {
        if !s.stands_alone(after) {
            return false;
        }
        rest = after;
    }
    true
}
