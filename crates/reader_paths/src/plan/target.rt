//! Where in a copy an action is carried out.
ghost use Rattle.std.specs.Prelude.{◌≡◌, map, option_map, IfOk, IfSome};
ghost use Rattle.std.specs.List.{list_all};
ghost use Rattle.std.specs.Path.{components_remaining, IsWellFormedComponent};
ghost use Rattle.notify_paths.specs.PathMoves.{child_of};
ghost use Rattle.notify_paths.specs.PathText.{part_of, text_of};
ghost use Rattle.notify_paths.specs.PathView.{component_part};
ghost use Rattle.poll_listing.specs.Near.{is_name_part};
ghost use Rattle.reader_paths.specs.Plan.Target.{IsInCopy, target_of};

use notify_paths::PathBuf;
use poll_listing::components_past;
use std::alloc::{AllocError, Allocator, Global};
use std::marker::Model;
use std::path::{Component, Components};

/// Returns the path in the copy `to` that stands for this path of the original `from`. It is `None` if
/// the path doesn't lie at or below `from` by names alone, so no action leaves the copy.
pub fn target_of<A: Allocator + Copy>(
    from: &PathBuf<A>,
    to: &PathBuf<A>,
    path: &PathBuf<A>,
) -> Result<Option<PathBuf<A>>, AllocError>
    ensures { IfOk result (λ r. r ≡ target_of from.now to.now path.now) }
{
    if from.is_empty() || !path.starts_with(from) || !are_names(components_past(from, path)) {
        return Ok(None);
    }
    Ok(Some(path.relocated(from, to)?))
}

/// Whether each component is a name.
fn are_names(components: Components<'_>) -> bool
    ensures { result ≡ list_all is_name_part (map part_of (components_remaining components.entry)) }
{
    for component in components {
        if !is_name(component) {
            return false;
        }
    }
    true
}

/// Whether the component is a name.
fn is_name(component: Component<'_>) -> bool
    requires { IsWellFormedComponent component }
    ensures { result ≡ is_name_part (component_part component.entry) }
{
    match component {
        Component::RootDir | Component::CurDir | Component::ParentDir => false,
        Component::Normal(_) => true,
    }
}

/// A path of a copy: what takes it can't act outside of the copy.
#[derive(Drop)]
pub struct Target<'c, A: Allocator = Global> {
    to: &'c PathBuf<A>,
    path: PathBuf<A>,
}

impl<'c, A: Allocator> Model for Target<'c, A> {
    ghost use Rattle.reader_paths.specs.Plan.Target.{TargetValue, IsInCopy};

    ghost Value = { TargetValue };

    ghost view = { λ a. record { to = a.to.now; path = a.path } };

    ghost invariant = { λ a. IsInCopy a.to.now a.path };
}

impl<'c, A: Allocator + Copy> Target<'c, A> {
    /// Returns the path in the copy `to` that stands for this path of the original `from`, as
    /// [`target_of`] does.
    pub fn of(
        from: &PathBuf<A>,
        to: &'c PathBuf<A>,
        path: &PathBuf<A>,
    ) -> Result<Option<Target<'c, A>>, AllocError>
        ensures ok { IfOk result (λ r. option_map (λ t. t.path) r
            ≡ target_of from.now to.now path.now) }
        ensures copy { IfOk result (λ r. IfSome r (λ t. t.to ≡ to.now)) }
    {
        match target_of(from, to, path)? {
            Some(path) => Ok(Some(Target { to, path })),
            None => Ok(None),
        }
    }

    /// Returns the path of this name in the copy, or `None` if it is no name.
    pub fn named(to: &'c PathBuf<A>, name: &str) -> Result<Option<Target<'c, A>>, AllocError>
        ensures ok { IfOk result (λ r. option_map (λ t. t.path) r ≡ child_of to.now name.now) }
        ensures copy { IfOk result (λ r. IfSome r (λ t. t.to ≡ to.now)) }
    {
        let Some(path) = to.child(name)? else {
            return Ok(None);
        };
        Ok(Some(Target { to, path }))
    }
}

impl<'c, A: Allocator> Target<'c, A> {
    /// Returns the path, which lies at or below the copy by names alone.
    pub fn path(&self) -> &PathBuf<A>
        ensures value { result.now ≡ self.now.path }
        ensures inside { IsInCopy self.now.to self.now.path }
    {
        &self.path
    }

    /// Returns the copy.
    pub fn to(&self) -> &'c PathBuf<A>
        ensures { result.now ≡ self.now.to }
    {
        self.to
    }

    /// Returns the path's text.
    pub fn as_str(&self) -> &str
        ensures value { result.now ≡ text_of self.now.path }
        ensures inside { IsInCopy self.now.to self.now.path }
    {
        self.path.as_str()
    }
}
