//! The children that are still to be waited for.

ghost use Rattle.std.specs.Prelude.{◌≡◌};
ghost use Rattle.child_programs.specs.Children.{without};

/// Takes a child's number out.
pub fn remove_number(live: &mut Vec<u32>, number: u32)
    ensures { live.new.items ≡ without number live.old.items }
{
    live.retain(|other| *other != number);
}
