// What is to be done, where nothing but the terms and the rooms can be refused any more.
ghost use Rattle.std.specs.Prelude.{◌≡◌, ◌*◌, ◌≤◌, length};
ghost use Rattle.entities.specs.Limits.{most_modes};
ghost use Rattle.slots.specs.code.Promises.{Distances};

use slots::heuristics::Heuristic;
use terms::rules::Rule;

// The modes, the rule, the given tree's codes and the heuristic.
#[derive(Clone, Copy)]
pub struct Task<'a> {
    pub modes: usize,
    pub rule: Rule,
    pub tree: &'a [u16],
    pub heuristic: Heuristic,
    pub ghost some: { 1 ≤ modes },
    pub ghost few: { modes ≤ most_modes },
    pub ghost whole: { length tree.now ≡ 3 * modes },
}

// What each round needs: the task, and the distance of each node from the root.
#[derive(Clone, Copy)]
pub struct Ready<'a> {
    pub task: Task<'a>,
    pub distances: &'a [usize],
    pub ghost far: { Distances task.modes task.tree.now distances.now },
}
