// A second passes.
ghost use Rattle.std.specs.Prelude.{◌≡◌};
ghost use Rattle.database.specs.Nodes.{world};
ghost use Rattle.calls.specs.Calls.{second_answer, second_left};
ghost use Rattle.calls.specs.Laws.{Ages, Drops, KeepsOnePlace, Untouched};

use crate::guard::check_rows;
use crate::refusal::Refusal;
use database::node::Node;
use kinds::kind::Kind;

pub fn second<K: Kind>(node: &mut Node, elements: &mut [K], wants: &mut [K]) -> Result<(), Refusal>
    ensures answer { result ≡ second_answer (world node.old elements.old wants.old) }
    ensures node { node.new ≡ (second_left K.model (world node.old elements.old wants.old)).node }
    ensures elements { elements.new ≡ (second_left K.model (world node.old elements.old wants.old)).elements }
    ensures wants { wants.new ≡ wants.old }
    ensures refused { Untouched result (world node.old elements.old wants.old) (world node.new elements.new wants.new) }
    ensures one_place { KeepsOnePlace node.old node.new }
    ensures drops { Drops K.model (world node.old elements.old wants.old) (world node.new elements.new wants.new) }
    ensures ages { Ages K.model (world node.old elements.old wants.old) (world node.new elements.new wants.new) }
{
    check_rows(elements, wants)?;
    node.drop_expired(elements);
    node.age(elements, wants);
    node.raise_counts();
    node.settle();
    Ok(())
}
