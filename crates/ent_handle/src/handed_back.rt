ghost use Rattle.std.specs.Prelude.{◌≡◌};

use std::error::Error;
use std::fmt;
use std::marker::Model;

/// What was handed in, and why it wasn't taken. It is the error of a call that takes a value, so
/// that the value is not lost if the call refuses it.
///
/// [`into_parts`](Self::into_parts) returns both. `Debug` and `Display` write the error alone, so a
/// value of any type can be handed back through `?`.
///
/// ```
/// use forgeni::{Handle, HandleMap, InsertError};
///
/// let [old, new] = [Handle::new(7, 1).unwrap(), Handle::new(7, 2).unwrap()];
/// let mut names = HandleMap::new();
/// names.insert(new, "Ada")?;
/// let refused = names.insert(old, "Bob").unwrap_err();
/// assert_eq!(refused.error(), &InsertError::Later);
/// assert_eq!(refused.to_string(), "a later occupant of the slot has a value");
/// assert_eq!(refused.into_parts(), ("Bob", InsertError::Later));
/// # Ok::<(), Box<dyn std::error::Error + Send + Sync>>(())
/// ```
///
/// Contracts see a pair of the value and the error.
#[derive(Clone, Copy, PartialEq, Eq, Drop)]
pub struct HandedBack<T, E> {
    value: T,
    error: E,
}

impl<T, E> Model for HandedBack<T, E> {
    ghost use Rattle.ent_handle.specs.HandedBack.{HandedBack};

    ghost Value = { HandedBack T E };

    ghost view = { λ h. record { value = h.value; error = h.error } };

    ghost inverse = { λ h. record { value = h.value; error = h.error } };
}

impl<T, E> HandedBack<T, E> {
    /// Creates a `HandedBack` of a value and the reason why it wasn't taken.
    ///
    /// ```
    /// use forgeni::HandedBack;
    ///
    /// /// A call of your own that hands back what it refuses.
    /// fn seat(name: String, left: &mut u32) -> Result<(), HandedBack<String, &'static str>> {
    ///     if *left == 0 {
    ///         return Err(HandedBack::new(name, "all seats are taken"));
    ///     }
    ///     *left -= 1;
    ///     Ok(())
    /// }
    ///
    /// let refused = seat("Ada".into(), &mut 0);
    /// assert_eq!(refused.err().map(|it| it.to_string()), Some("all seats are taken".into()));
    /// ```
    #[must_use]
    pub fn new(value: T, error: E) -> Self
        ensures { result ≡ record { value = value; error = error } }
    {
        HandedBack { value, error }
    }

    /// Returns what was handed in, and why it wasn't taken.
    ///
    /// ```
    /// use forgeni::{Entities, ShareError};
    ///
    /// let refused = Entities::new().share(0).err().ok_or("it was shared")?;
    /// let (mut entities, error) = refused.into_parts();
    /// assert_eq!(error, ShareError::Count);
    /// // The allocator isn't lost.
    /// entities.alloc()?;
    /// # Ok::<(), Box<dyn std::error::Error>>(())
    /// ```
    #[must_use]
    pub fn into_parts(self) -> (T, E)
        ensures value { result.0 ≡ self.value }
        ensures error { result.1 ≡ self.error }
    {
        (self.value, self.error)
    }

    /// Returns what was handed in.
    ///
    /// ```
    /// use forgeni::HandleMap;
    ///
    /// let mut names = HandleMap::with_limit(1);
    /// let refused = names.insert("5v1".parse()?, "Ada").err().ok_or("it was inserted")?;
    /// assert_eq!(refused.value(), &"Ada");
    /// # Ok::<(), Box<dyn std::error::Error>>(())
    /// ```
    #[must_use]
    pub fn value(&self) -> &T
        ensures { result.now ≡ self.now.value }
    {
        &self.value
    }

    /// Returns why it wasn't taken.
    ///
    /// ```
    /// use forgeni::{HandleMap, InsertError};
    ///
    /// let mut names = HandleMap::with_limit(1);
    /// match names.insert("5v1".parse()?, "Ada") {
    ///     Err(refused) if *refused.error() == InsertError::Limit => names.set_limit(6),
    ///     other => drop(other?),
    /// }
    /// assert_eq!(names.limit(), 6);
    /// # Ok::<(), Box<dyn std::error::Error>>(())
    /// ```
    #[must_use]
    pub fn error(&self) -> &E
        ensures { result.now ≡ self.now.error }
    {
        &self.error
    }
}

/// The error alone.
impl<T, E: fmt::Debug> fmt::Debug for HandedBack<T, E> {
    fn fmt<W: fmt::Write>(&self, f: &mut fmt::Formatter<W>) -> fmt::Result {
        self.error.fmt(f)
    }
}

impl<T, E: fmt::Display> fmt::Display for HandedBack<T, E> {
    fn fmt<W: fmt::Write>(&self, f: &mut fmt::Formatter<W>) -> fmt::Result {
        self.error.fmt(f)
    }
}

impl<T: Drop, E: fmt::Debug + fmt::Display + Drop> Error for HandedBack<T, E> {}
