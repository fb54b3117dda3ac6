ghost use Rattle.std.specs.Prelude.{◌≡◌, ◌↔◌, [], length, nat_eq, IfOk, IsTrue, List};
ghost use Rattle.std.proofs.Common.{rules};
ghost use Rattle.std.specs.Cmp.Lexicographic.{pointwise};
ghost use Rattle.std.specs.Cmp.Rules.{comparing};
ghost use Rattle.std.specs.Ordering.{eq_of_both, on};

use ent_handle::{Handle, Memory};
use std::alloc::Global;
use std::fmt;
use std::marker::Model;

/// The handles of an answer, in their order.
///
/// ```
/// use forgeni::{trace, Handle};
///
/// let born: Vec<Handle> = vec!["0v1".parse()?, "1v1".parse()?];
/// // It is printed as a line of a trace has it.
/// let reply = trace::FlushReply::from(born);
/// assert_eq!(trace::Call::Flush(Some(reply)).to_string(), "flush => born 0v1 1v1");
/// # Ok::<(), Box<dyn std::error::Error>>(())
/// ```
#[derive(Drop)]
pub struct HandleList {
    handles: Vec<Handle>,
}

impl Model for HandleList {
    ghost use Rattle.std.specs.Prelude.{List};
    ghost use Rattle.ent_handle.specs.Handle.{Handle};

    ghost Value = { List Handle };

    ghost view = { λ a. a.handles.items };
}

impl HandleList {
    /// Creates a list of these handles. It doesn't allocate.
    ///
    /// ```
    /// use forgeni::trace;
    ///
    /// let list = trace::HandleList::new(vec!["0v1".parse()?, "1v1".parse()?]);
    /// assert_eq!(list.iter().map(|one| one.index()).collect::<Vec<_>>(), [0, 1]);
    /// # Ok::<(), Box<dyn std::error::Error>>(())
    /// ```
    #[must_use]
    pub fn new(handles: Vec<Handle>) -> Self
        ensures { result ≡ handles.items }
    {
        HandleList { handles }
    }

    /// Returns the handles as a slice.
    ///
    /// ```
    /// use forgeni::{trace, Handle};
    ///
    /// let handles: Vec<Handle> = vec!["0v1".parse()?, "1v1".parse()?];
    /// let list = trace::HandleList::from(handles.clone());
    /// assert_eq!(list.as_slice(), handles);
    /// # Ok::<(), Box<dyn std::error::Error>>(())
    /// ```
    #[must_use]
    pub fn as_slice(&self) -> &[Handle]
        ensures { result.now ≡ self.now }
    {
        &self.handles
    }

    /// Returns the number of handles.
    ///
    /// ```
    /// use forgeni::trace;
    ///
    /// let list = trace::HandleList::new(vec!["0v1".parse()?, "1v1".parse()?]);
    /// assert_eq!(list.len(), 2);
    /// # Ok::<(), forgeni::ParseHandleError>(())
    /// ```
    #[must_use]
    pub fn len(&self) -> usize
        ensures { result ≡ length self.now }
    {
        self.handles.len()
    }

    /// Returns `true` if there are no handles.
    ///
    /// ```
    /// use forgeni::trace;
    ///
    /// assert!(trace::HandleList::new(Vec::new()).is_empty());
    /// ```
    #[must_use]
    pub fn is_empty(&self) -> bool
        ensures { IsTrue result ↔ (self.now ≡ []) }
    {
        self.handles.is_empty()
    }

    /// A copy.
    pub(crate) fn try_copy(&self, alloc: Global) -> Result<HandleList, Memory>
        ensures { IfOk result (λ copy. copy ≡ self.now) }
    {
        let mut handles = Vec::new(alloc);
        handles.extend_from_slice(&self.handles)?;
        Ok(HandleList { handles })
    }

    /// Returns the handles, without copying them.
    ///
    /// ```
    /// use forgeni::{trace, Entities};
    ///
    /// let reply = trace::ReserveReply::from(Entities::new().request_many(3)?);
    /// if let trace::ReserveReply::Handles(list) = reply {
    ///     assert_eq!(list.into_vec().len(), 3);
    /// }
    /// # Ok::<(), Box<dyn std::error::Error>>(())
    /// ```
    #[must_use]
    pub fn into_vec(self) -> Vec<Handle>
        ensures { result.items ≡ self }
    {
        let HandleList { handles } = self;
        handles
    }
}

impl fmt::Debug for HandleList {
    fn fmt<W: fmt::Write>(&self, f: &mut fmt::Formatter<W>) -> fmt::Result {
        let handles = self.as_slice();
        write!(f, "{handles:?}")
    }
}

impl PartialEq for HandleList {
    ghost eq = { pointwise
        (eq_of_both (on (λ h. h.index) nat_eq) (on (λ h. h.generation) nat_eq)) };

    ghost laws = { Prim.search (comparing, rules) };

    fn eq(&self, other: &HandleList) -> bool {
        self.as_slice() == other.as_slice()
    }
}

impl Eq for HandleList {
    ghost laws = { Prim.search (comparing, rules) };
}

impl From<Vec<Handle>> for HandleList {
    ghost from_gives = { λ handles list. list ≡ handles.items };

    fn from(handles: Vec<Handle>) -> Self {
        HandleList::new(handles)
    }
}
