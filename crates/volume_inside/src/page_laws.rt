//! Laws of the clusters that pages of containers name, each the contract of an empty function.

ghost use Rattle.std.specs.Prelude.{◌≡◌, ◌+◌, ℕ, Bool, List, T};
ghost use Rattle.std.specs.FinMap.{is_sorted};
ghost use Rattle.cluster_space.specs.declared.state.State.{State};
ghost use Rattle.cluster_space.specs.States.{IsIn};
ghost use Rattle.table_records.specs.Keys.{pair_cmp};
ghost use Rattle.volume_inside.specs.Changes.{with_cluster, keep_clusters};
ghost use Rattle.volume_inside.specs.ChunkTables.{PageKey};
ghost use Rattle.volume_inside.specs.Lists.{IsOut};
ghost use Rattle.volume_inside.specs.Named.{clusters_of};
ghost use Rattle.volume_inside.specs.Space.{IsSpaced};
ghost use Rattle.volume_inside.specs.Typed.{Typed};

/// A page is set over a used cluster that nobody names; and pages are dropped.
pub fn spaces_go_on_with_pages()
    ensures set { (first : ℕ) (states : List State) (stored now : Typed) (key : PageKey) (cluster k : ℕ) →
        IsSpaced first states stored now → T (is_sorted pair_cmp now.chunks.clusters) → cluster ≡ first + k →
        IsIn states k State.Used → IsOut cluster (clusters_of now) →
        IsSpaced first states stored (with_cluster key cluster now) }
    ensures keep { (first : ℕ) (states : List State) (stored now : Typed) (test : PageKey → Bool) →
        IsSpaced first states stored now → IsSpaced first states stored (keep_clusters test now) }
{}
