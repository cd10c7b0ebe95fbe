//! Errors.
ghost use Rattle.std.specs.Prelude.{◌≡◌, ◌↔◌, ◌++◌, ◌∷◌, [], IfOk, IfErr, IsTrue};
ghost use Rattle.std.specs.Cmp.{on_equiv, partial_equiv_from_equiv};
ghost use Rattle.std.specs.Ordering.{on};
ghost use Rattle.notify_paths.specs.ErrorEquality.{error_kind_eq, error_eq};
ghost use Rattle.notify_paths.specs.ErrorLaws.{error_kind_eq_equiv, error_eq_equiv};
ghost use Rattle.notify_paths.specs.Errors.{out_of_memory};
ghost use Rattle.notify_paths.specs.ErrorView.{kind_value};

use crate::path::PathBuf;
use std::alloc::{AllocError, Allocator, Global};
use std::io;
use std::marker::Model;
use thiserror::Error as ErrorText;

/// What went wrong. Its text is one word.
#[derive(Debug, Drop, ErrorText)]
pub enum ErrorKind<A: Allocator = Global> {
    /// Something that no other kind says; the debouncer's own errors leave the text empty.
    #[error("Generic")]
    Generic(String<A>),
    /// A device or a system call failed.
    #[error("Io")]
    Io(io::ErrorKind),
    /// A path to be watched isn't there.
    #[error("PathNotFound")]
    PathNotFound,
    /// A path to be unwatched isn't watched.
    #[error("WatchNotFound")]
    WatchNotFound,
    /// The count of events is at its limit.
    #[error("Full")]
    Full,
    /// An allocation failed.
    #[error("Memory")]
    Memory,
}

impl<A: Allocator + Copy> Clone for ErrorKind<A> {
    ghost is_clone = { λ kind copy. kind_value copy ≡ kind_value kind };

    fn clone(&self) -> Result<ErrorKind<A>, AllocError> {
        match self {
            ErrorKind::Generic(text) => Ok(ErrorKind::Generic(text.clone()?)),
            ErrorKind::Io(kind) => Ok(ErrorKind::Io(*kind)),
            ErrorKind::PathNotFound => Ok(ErrorKind::PathNotFound),
            ErrorKind::WatchNotFound => Ok(ErrorKind::WatchNotFound),
            ErrorKind::Full => Ok(ErrorKind::Full),
            ErrorKind::Memory => Ok(ErrorKind::Memory),
        }
    }
}

impl<A: Allocator + Copy> ErrorKind<A> {
    /// Returns an equal kind.
    pub fn try_clone(&self, alloc: A) -> Result<ErrorKind<A>, Error<A>>
        ensures ok { IfOk result (λ kind. kind_value kind ≡ kind_value self.now) }
        ensures err { IfErr result (λ e. e ≡ out_of_memory) }
    {
        self.clone().map_err(|_| Error::out_of_memory(alloc))
    }
}

impl<A: Allocator> PartialEq for ErrorKind<A> {
    ghost eq = { on kind_value error_kind_eq };

    ghost laws = { partial_equiv_from_equiv (on_equiv kind_value error_kind_eq_equiv) };

    fn eq(&self, other: &ErrorKind<A>) -> bool
        ensures value { result ≡ error_kind_eq (kind_value self.now) (kind_value other.now) }
        ensures same { IsTrue result ↔ (kind_value self.now ≡ kind_value other.now) }
    {
        match (self, other) {
            (ErrorKind::Generic(text), ErrorKind::Generic(other_text)) => text == other_text,
            (ErrorKind::Io(kind), ErrorKind::Io(other_kind)) => kind == other_kind,
            (ErrorKind::PathNotFound, ErrorKind::PathNotFound)
            | (ErrorKind::WatchNotFound, ErrorKind::WatchNotFound)
            | (ErrorKind::Full, ErrorKind::Full)
            | (ErrorKind::Memory, ErrorKind::Memory) => true,
            _ => false,
        }
    }
}

impl<A: Allocator> Eq for ErrorKind<A> {
    ghost laws = { on_equiv kind_value error_kind_eq_equiv };
}

/// An error, with the paths that it is about. Its text is that of its kind. The debouncer's own
/// refusals carry no paths, so that they take no memory.
#[derive(Debug, Drop, ErrorText)]
#[error("{kind}")]
pub struct Error<A: Allocator = Global> {
    pub kind: ErrorKind<A>,
    pub paths: Vec<PathBuf<A>, A>,
}

impl<A: Allocator> Model for Error<A> {
    ghost use Rattle.notify_paths.specs.Errors.{ErrorValue};

    ghost Value = { ErrorValue };

    ghost use Rattle.notify_paths.specs.ErrorView.{kind_value};

    ghost view = { λ a. record { kind = kind_value a.kind; paths = a.paths.items } };
}

impl<A: Allocator> Error<A> {
    /// Returns an error of this kind that names no path.
    pub fn new(alloc: A, kind: ErrorKind<A>) -> Error<A>
        ensures { result ≡ record { kind = kind_value kind; paths = [] } }
    {
        Error {
            kind,
            paths: Vec::new(alloc),
        }
    }

    /// Returns the error that says that an allocation failed.
    pub fn out_of_memory(alloc: A) -> Error<A>
        ensures { result ≡ out_of_memory }
    {
        Error::new(alloc, ErrorKind::Memory)
    }

    /// Adds a path after the others. If the allocation fails, the error and the path are dropped.
    pub fn add_path(mut self, path: PathBuf<A>) -> Result<Error<A>, Error<A>>
    where
        A: Copy,
        ensures ok { IfOk result (λ e. e ≡ record self { paths = self.paths ++ path ∷ [] }) }
        ensures err { IfErr result (λ e. e ≡ out_of_memory) }
    {
        let alloc = *self.paths.allocator();
        match self.paths.push(path) {
            Ok(()) => Ok(self),
            Err(_) => Err(Error::out_of_memory(alloc)),
        }
    }

    /// Returns an equal error.
    pub fn try_clone(&self) -> Result<Error<A>, Error<A>>
    where
        A: Copy,
        ensures ok { IfOk result (λ e. e ≡ self.now) }
        ensures err { IfErr result (λ e. e ≡ out_of_memory) }
    {
        let alloc = *self.paths.allocator();
        self.clone().map_err(|_| Error::out_of_memory(alloc))
    }
}

impl<A: Allocator + Copy> Clone for Error<A> {
    ghost is_clone = { λ error copy. copy ≡ error };

    fn clone(&self) -> Result<Error<A>, AllocError> {
        Ok(Error {
            kind: self.kind.clone()?,
            paths: self.paths.to_vec(*self.paths.allocator())?,
        })
    }
}

impl<A: Allocator> PartialEq for Error<A> {
    ghost eq = { error_eq };

    ghost laws = { partial_equiv_from_equiv error_eq_equiv };

    fn eq(&self, other: &Error<A>) -> bool
        ensures value { result ≡ error_eq self.now other.now }
        ensures same { IsTrue result ↔ (self.now ≡ other.now) }
    {
        self.kind == other.kind && self.paths == other.paths
    }
}

impl<A: Allocator> Eq for Error<A> {
    ghost laws = { error_eq_equiv };
}
