// The way up from a code: the place of each code, and the edge of a node under which a code stands.
ghost use Rattle.std.specs.Prelude.{◌≡◌, ◌+◌, ◌*◌, ◌≤◌, ◌<◌, length};
ghost use Rattle.std.proofs.Props.{props};
ghost use Rattle.entities.specs.Limits.{most_modes};
ghost use Rattle.tree_weight.specs.code.Promises.{Places};
ghost use Rattle.tree_weight.specs.Weight.{edge_under};

use tree::table;

// The place of each code below the table's length, so that the way up takes no search.
pub fn fill_places(tree: &[u16], places: &mut [usize])
    requires { length tree.now ≤ length places.old }
    ensures { Places tree.now places.new }
{
    for code in 0..tree.len() {
        places[code] = table::place_of(tree, code);
    }
}

// The edge of a node under which the code stands, found by climbing; 3 where it stands under none.
pub fn edge_under(tree: &[u16], places: &[usize], steps: usize, node: usize, code: usize) -> usize
    requires places { Places tree.now places.now }
    requires code_in_bounds { code < length tree.now }
    ensures { result ≡ edge_under tree.now steps node code }
{
    let mut at = code;
    for _ in 0..steps {
        let place = places[at];
        if tree.len() <= place {
            return 3;
        }
        at = place / 3;
        if at == node {
            return place % 3;
        }
    }
    3
}

// The table of a tree, with the place of each of its codes.
#[derive(Clone, Copy)]
pub struct PlacedTree<'a> {
    pub modes: usize,
    pub tree: &'a [u16],
    pub places: &'a [usize],
    pub ghost few: { modes ≤ most_modes },
    pub ghost whole: { length tree.now ≡ 3 * modes },
    pub ghost placed: { Places tree.now places.now } by { Prim.hlevel props },
}

impl<'a> PlacedTree<'a> {
    // The edge of a node under which a Majorana's leaf stands; 3 where it stands under none.
    pub fn majorana_edge(&self, node: usize, majorana: usize) -> usize
        requires { majorana < 2 * self.now.modes }
        ensures { result ≡ edge_under self.now.tree.now (self.now.modes + 1) node (self.now.modes + majorana) }
    {
        let leaf = self.modes + majorana;
        edge_under(self.tree, self.places, self.modes + 1, node, leaf)
    }
}
