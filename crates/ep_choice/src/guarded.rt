//! Which instances are guarded.
ghost use Rattle.std.specs.Prelude.{◌≡◌, IsSome};
ghost use Rattle.std.specs.List.{list_any};
ghost use Rattle.ep_base.specs.declared.ids.DescId.{DescId as Key};
ghost use Rattle.ep_choice.specs.Choose.{HaveInstances};
ghost use Rattle.ep_choice.specs.Guarded.{guarded_key, has_exclusive};
ghost use Rattle.ep_table.specs.Value.{number_under};

use ep_base::DescId;
use ep_calls::Parts;
use ep_interest::Interest;

/// Whether one of these instances has an exclusive registration.
fn is_any_exclusive(interest: &Interest, instances: &[DescId]) -> bool
    ensures { result ≡ list_any (λ (d : Key). has_exclusive interest.now d) instances.now }
{
    for instance in instances {
        if interest.has_exclusive(*instance) {
            return true;
        }
    }
    false
}

/// Whether there is an exclusive registration in an instance or in one beneath it, to which a chain of links leads
/// down, armed or not. It looks at the registrations of the instance up to the first exclusive one; if it has none, at
/// the links from it and from those beneath, and at the registrations of these up to the first exclusive one. It looks
/// at nothing if no registration is exclusive. It takes no memory.
pub fn is_guarded(parts: &mut Parts, instance: DescId) -> bool
    requires live { IsSome (number_under parts.old.tables instance) }
    requires instances { HaveInstances parts.old }
    ensures parts { parts.new ≡ parts.old }
    ensures exact { result ≡ guarded_key parts.old.tables parts.old.interest instance.0 }
{
    parts.known();
    parts.interest.known();
    parts.graph.known();
    if parts.interest.guards() == 0 {
        return false;
    }
    if parts.interest.has_exclusive(instance) {
        return true;
    }
    is_any_exclusive(&parts.interest, parts.graph.beneath(instance))
}
