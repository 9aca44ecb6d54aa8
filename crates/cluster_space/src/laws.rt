//! Laws of the states of clusters, each the contract of a function that does nothing.
ghost use Rattle.std.specs.Prelude.{◌≡◌, ◌+◌, ◌<◌, ◌⊎◌, ◌↔◌, ℕ, List, length};
ghost use Rattle.cluster_space.specs.declared.state.State.{State};
ghost use Rattle.cluster_space.specs.States.{IsIn, free_in, used_in, deferred_in};

/// Each cluster is free, used or deferred, and nothing else is: the three sets cover all clusters.
pub fn each_cluster_has_a_state()
    ensures { (states : List State) (c : ℕ) →
        (c < length states) ↔ (IsIn states c State.Free ⊎ (IsIn states c State.Used ⊎ IsIn states c State.Deferred)) }
{}

/// No cluster is in two of the three sets.
pub fn the_states_are_disjoint()
    ensures free_used { (states : List State) (c : ℕ) → ¬ (IsIn states c State.Free × IsIn states c State.Used) }
    ensures free_deferred { (states : List State) (c : ℕ)
        → ¬ (IsIn states c State.Free × IsIn states c State.Deferred) }
    ensures used_deferred { (states : List State) (c : ℕ)
        → ¬ (IsIn states c State.Used × IsIn states c State.Deferred) }
{}

/// The counts of the three states make up the number of all clusters.
pub fn the_counts_make_up_all()
    ensures { (states : List State) → free_in states + used_in states + deferred_in states ≡ length states }
{}

/// The count of free clusters is zero exactly where no cluster is free.
pub fn a_count_of_zero_means_none()
    ensures { (states : List State) → (free_in states ≡ 0) ↔ ((c : ℕ) → ¬ (IsIn states c State.Free)) }
{}
