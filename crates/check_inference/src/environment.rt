//! What names stand for in a text (8.1): parameters of the construct that is judged, items, the target of the assignment.

ghost use Rattle.std.specs.Prelude.{◌≡◌, map, Some};
ghost use Rattle.check_inference.specs.Gather as gather;
ghost use Rattle.check_inference.specs.Paths as spec;
ghost use Rattle.check_inference.specs.Paths.{bound_of, name_of, place_of};
ghost use Rattle.check_inference.specs.Words.{ranged};

use check_clashes::effects::Selector;
use typed_tree::{Iterated, Root};

/// A variable and how the path goes on from it.
#[derive(Clone, Copy)]
pub struct Named<'a> {
    pub object: u32,
    pub selectors: &'a [Selector],
}

/// The item of an iteration over the components of a variable (5.5.2), and the path that it stands for.
#[derive(Clone, Copy)]
pub struct Item<'a> {
    pub item: u32,
    pub named: Named<'a>,
}

/// Where a text stands.
/// - sites: whether the parallel constructs in it are recorded.
/// - arm: the arm of the parallel block that is judged; 0 elsewhere.
/// - loop_parameter, chunk_parameter: those of the parallel loop or reduction that is judged.
/// - items: items and their paths, the innermost first.
/// - target: the target of the assignment (5.2.1).
/// - hidden: the variables that are declared in the text around, since the walk began.
#[derive(Clone, Copy)]
pub struct Environment<'a> {
    pub sites: bool,
    pub arm: u32,
    pub loop_parameter: Option<u32>,
    pub chunk_parameter: Option<u32>,
    pub items: &'a [Item<'a>],
    pub target: Named<'a>,
    pub hidden: &'a [u32],
}

/// Whether a parameter is the one of that number.
fn is_one(parameter: Option<u32>, number: u32) -> bool
    ensures { result ≡ spec.is_one parameter number }
{
    match parameter {
        None => false,
        Some(one) => number == one,
    }
}

/// A parameter, unless it has that number.
pub fn other(number: u32, parameter: Option<u32>) -> Option<u32>
    ensures { result ≡ spec.other number parameter }
{
    match parameter {
        None => None,
        Some(one) => { if one == number { None } else { Some(one) } }
    }
}

/// What a parameter and a distance are as an index.
pub fn role(env: Environment<'_>, number: u32, distance: i64) -> Selector
    ensures { result ≡ spec.role (place_of env.entry) number distance }
{
    if is_one(env.chunk_parameter, number) {
        return Selector::Chunk(distance);
    }
    if is_one(env.loop_parameter, number) {
        return Selector::Loop(distance);
    }
    Selector::Any
}

/// The path of an item.
#[tactic(auto, unfolding(crate::specs::Paths::item_name))]
fn item_named<'a>(items: &'a [Item<'a>], item: u32) -> Named<'a>
    ensures { name_of result ≡ spec.item_name (map bound_of items.now) item }
{
    for i in 0..items.len() {
        let bound = items[i];
        if item == bound.item {
            return bound.named;
        }
    }
    Named {
        object: 0,
        selectors: &[],
    }
}

/// The path of what a name begins with.
pub fn root_named<'a>(env: Environment<'a>, root: Root) -> Named<'a>
    ensures { name_of result ≡ spec.root_name (place_of env.entry) root }
{
    match root {
        Root::Object(object) => Named {
            object,
            selectors: &[],
        },
        Root::Item(item) => item_named(env.items, item),
    }
}

/// Below an iteration or a chunk specification that isn't judged, where a parameter of that number is another's.
pub fn hide<'a>(env: Environment<'a>, number: u32) -> Environment<'a>
    ensures { place_of result ≡ spec.hide number (place_of env.entry) }
{
    Environment {
        loop_parameter: other(number, env.loop_parameter),
        chunk_parameter: other(number, env.chunk_parameter),
        ..env
    }
}

/// Below an iteration over a range, which is judged or not.
pub fn range_below<'a>(env: Environment<'a>, judged: bool, number: u32) -> Environment<'a>
    ensures { place_of result ≡ ranged judged number (place_of env.entry) }
{
    if judged {
        Environment {
            loop_parameter: Some(number),
            chunk_parameter: other(number, env.chunk_parameter),
            ..env
        }
    } else {
        hide(env, number)
    }
}

/// Below an iterated association (4.3.3).
pub fn association_below<'a>(env: Environment<'a>, iterated: Option<Iterated>) -> Environment<'a>
    ensures { place_of result ≡ gather.iterated_hidden iterated (place_of env.entry) }
{
    match iterated {
        None => env,
        Some(one) => hide(env, one.parameter),
    }
}

/// Where a construct stands that is judged.
pub fn judging<'a>(env: Environment<'a>) -> Environment<'a>
    ensures { place_of result ≡ spec.judging (place_of env.entry) }
{
    Environment {
        sites: false,
        arm: 0,
        hidden: &[],
        ..env
    }
}
