// An inner crate: the disjoint set, over lent words. Word i is the parent of item i, and a root is its own parent.
// In the words of a set every climb ends: `reset` makes such words, and every method keeps them so. The methods ask for
// items that have a word.
#![tactic(auto)]

ghost use Rattle.std.specs.Prelude.{◌≡◌, ℕ, ◌^◌, ◌<◌, ◌≤◌, length};
ghost use Rattle.std.specs.List.{AllByRecursion};
ghost use Rattle.disjoint_set.specs.Forest.{Forest, root, apart, compressed};
ghost use Rattle.disjoint_set.specs.Once.{forest_once};
ghost use Rattle.disjoint_set.specs.Joins.{attached, joined};
ghost use Rattle.disjoint_set.specs.Classes.{sent};
ghost use Rattle.disjoint_set.specs.Laws.{ClimbEndsAtRoot, FindHangsWhatItPasses, OneRootExactlyByChains};
ghost use Rattle.disjoint_set.specs.Examples.{FindExample, UnionExample};

// The words are lent by the host, since no pass allocates.
#[derive(Debug, Drop)]
pub struct DisjointSet<'a> {
    pub parents: &'a mut [u32],
    pub ghost forest: { Forest parents.now } by { forest_once parents.now },
}

impl<'a> DisjointSet<'a> {
    // A set over the words, whatever they held, with every item its own root.
    pub fn new(parents: &'a mut [u32]) -> DisjointSet<'a>
        requires { length parents.old ≤ 2 ^ 32 }
        ensures words { result.parents.now ≡ apart (length parents.old) }
        ensures own { (j : ℕ) → j < length parents.old → root result.parents.now j ≡ j }
        ensures len { length result.parents.now ≡ length parents.old }
        ensures lender { result.parents.ghost_name ≡ parents.entry.ghost_name }
    {
        DisjointSet::reset(parents);
        DisjointSet { parents }
    }
}

// That a call keeps the length and the lender of the words is said of before and after, so it stands
// in each contract and in no field.
impl DisjointSet<'_> {
    // Makes every item its own root, whatever the words held.
    pub fn reset(parents: &mut [u32])
        requires { length parents.old ≤ 2 ^ 32 }
        ensures words { parents.new ≡ apart (length parents.old) }
        ensures forest { Forest parents.new }
        ensures own { (j : ℕ) → j < length parents.old → root parents.new j ≡ j }
        ensures len { length parents.new ≡ length parents.old }
    {
        for (i, parent) in parents.iter_mut().enumerate() {
            *parent = i as u32;
        }
    }

    // The root of the item. Every item on the way gets the root as its parent.
    pub fn find(&mut self, item: u32) -> u32
        requires { item < length self.old.parents.now }
        ensures is { result ≡ root self.old.parents.now item }
        ensures words { self.new.parents.now ≡ compressed self.old.parents.now item }
        ensures kept { (j : ℕ) → j < length self.old.parents.now → root self.new.parents.now j ≡ root self.old.parents.now j }
        ensures len { length self.new.parents.now ≡ length self.old.parents.now }
        ensures lender { self.new.parents.ghost_name ≡ self.old.parents.ghost_name }
    {
        let parent = self.parents[item as usize];
        if parent == item {
            return item;
        }
        let top = self.find(parent);
        self.parents[item as usize] = top;
        top
    }

    // Puts the sets of the items into one, under the root of the first.
    pub fn union(&mut self, items: &[u32])
        requires { AllByRecursion (λ x. x < length self.old.parents.now) items.now }
        ensures words { self.new.parents.now ≡ joined self.old.parents.now items.now }
        ensures classes { (j : ℕ) → j < length self.old.parents.now → root self.new.parents.now j ≡ sent (root self.old.parents.now) items.now j }
        ensures len { length self.new.parents.now ≡ length self.old.parents.now }
        ensures lender { self.new.parents.ghost_name ≡ self.old.parents.ghost_name }
    {
        let [first, rest @ ..] = items else {
            return;
        };
        let top = self.find(*first);
        for item in rest {
            self.attach(*item, top);
        }
    }

    // Finds the item, and hangs its root on the root `top`.
    fn attach(&mut self, item: u32, top: u32)
        requires within { item < length self.old.parents.now }
        requires room { top < length self.old.parents.now }
        requires own { root self.old.parents.now top ≡ top }
        ensures words { self.new.parents.now ≡ attached self.old.parents.now top item }
        ensures own { root self.new.parents.now top ≡ top }
        ensures len { length self.new.parents.now ≡ length self.old.parents.now }
        ensures lender { self.new.parents.ghost_name ≡ self.old.parents.ghost_name }
    {
        let item_root = self.find(item);
        if item_root != top {
            self.parents[item_root as usize] = top;
        }
    }
}

// Where the climbs of a forest end, and how long they are.
pub fn climb_ends_stands()
    ensures { ClimbEndsAtRoot }
{}

// What a find leaves, word by word.
pub fn find_hangs_stands()
    ensures { FindHangsWhatItPasses }
{}

// Which items have one root after lists were joined one after the other.
pub fn chains_stand()
    ensures { OneRootExactlyByChains }
{}

// A find in a small forest.
pub fn find_example()
    ensures { FindExample }
{}

// A union in the same forest.
pub fn union_example()
    ensures { UnionExample }
{}
