//! A counter of the comparisons that a removal of duplicates makes.
use std::marker::Model;

/// A counter of comparisons.
///
/// In contracts it is the number of comparisons made.
///
/// # Examples
///
/// ```
/// let mut steps = Steps::new();
/// steps.same(&1, &2) // false
/// steps.count() // 1
/// ```
#[derive(Debug, Drop)]
pub struct Steps {
    made: u128,
}

impl Model for Steps {
    ghost use Rattle.std.specs.Prelude.{ℕ};

    ghost Value = { ℕ };

    ghost view = { λ s. s.made };
}

impl Steps {
    ghost use Rattle.std.specs.Prelude.{◌≡◌, ◌+◌, ◌<◌};

    /// Creates a counter that starts at 0.
    ///
    /// # Examples
    ///
    /// ```
    /// Steps::new().count() // 0
    /// ```
    pub fn new() -> Steps
        ensures { result ≡ 0 }
    {
        Steps { made: 0 }
    }

    /// Returns the number of comparisons so far.
    ///
    /// # Examples
    ///
    /// ```
    /// let mut steps = Steps::new();
    /// steps.same(&1, &2) // false
    /// steps.same(&1, &1) // true
    /// steps.count() // 2
    /// ```
    #[inline]
    pub fn count(&self) -> u128
        ensures { result ≡ self.now }
    {
        self.made
    }

    /// Returns `true` if `a == b`, and counts one more comparison.
    ///
    /// # Preconditions
    ///
    /// The count is less than `u128::MAX`. [`Steps::count`] returns it.
    ///
    /// # Examples
    ///
    /// ```
    /// let mut steps = Steps::new();
    /// steps.same(&1, &1) // true
    /// ```
    #[inline]
    pub fn same<T: Eq>(&mut self, a: &T, b: &T) -> bool
        requires { self.old < u128.MAX }
        ensures equal { result ≡ T.eq a.now b.now }
        ensures counted { self.new ≡ self.old + 1 }
    {
        self.made += 1;
        *a == *b
    }
}
