//! What the mark of a link tells.
ghost use Rattle.std.specs.Prelude.{◌≡◌};
ghost use Rattle.repo_shared.specs.declared.handles.Link.{Link};
ghost use Rattle.repo_shared.specs.Links.{mark_of, IsSameLink};

/// Links of one mark are of one repository and have one number. So a link that was lent as a `Repo`,
/// which leaves its mark, may meet others and be closed as before.
pub fn marks_tell_links<K>()
    ensures { (before after : Link K) → mark_of after ≡ mark_of before → IsSameLink before after }
{}
