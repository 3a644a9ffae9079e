//! Names of functions and symbols.
#![tactic(auto)]

ghost use Rattle.std.specs.Prelude.{◌≡◌, Some, IfOk, string_bytes};
ghost use Rattle.clif_types.specs.Texts.{user_external_name_text, testcase_text, user_func_name_text, external_name_text};

use crate::libcall::LibCall;
use std::alloc::AllocError;
use std::fmt;
use std::marker::Model;

/// A name by two numbers that only its maker understands. It prints as `u0:0`.
#[derive(Clone, Copy, PartialEq, Eq, PartialOrd, Ord, Hash, Debug)]
pub struct UserExternalName {
    pub namespace: u32,
    pub index: u32,
}

impl UserExternalName {
    /// The name with these numbers.
    pub fn new(namespace: u32, index: u32) -> UserExternalName
        ensures { result ≡ record { namespace = namespace; index = index } }
    {
        UserExternalName { namespace, index }
    }
}

impl fmt::Display for UserExternalName {
    ghost output = { λ n. Some (user_external_name_text n) };

    fn fmt<W: fmt::Write>(&self, f: &mut fmt::Formatter<W>) -> fmt::Result {
        let namespace = self.namespace;
        let index = self.index;
        write!(f, "u{namespace}:{index}")
    }
}

/// A name that is a text. It prints as `%sample`.
#[derive(Debug, Drop)]
pub struct TestcaseName {
    text: String,
}

impl Model for TestcaseName {
    ghost use Rattle.std.specs.Prelude.{ℕ, List, string_bytes};

    ghost Value = { List ℕ };

    ghost view = { λ n. string_bytes n.text };
}

impl TestcaseName {
    /// The name with this text.
    pub fn new(text: String) -> TestcaseName
        ensures { result ≡ string_bytes text }
    {
        TestcaseName { text }
    }

    /// The text of the name, without `%`.
    pub fn as_str(&self) -> &str
        ensures { result.now ≡ self.now }
    {
        self.text.as_str()
    }
}

impl Clone for TestcaseName {
    ghost is_clone = { λ old new. new ≡ old };

    fn clone(&self) -> Result<TestcaseName, AllocError> {
        Ok(TestcaseName {
            text: self.text.clone()?,
        })
    }
}

impl PartialEq for TestcaseName {
    ghost use Rattle.std.specs.Prelude.{nat_eq};
    ghost use Rattle.std.specs.Cmp.{partial_equiv_from_equiv};
    ghost use Rattle.std.specs.Cmp.Lexicographic.{pointwise, nat_list_eq_equiv};

    ghost eq = { pointwise nat_eq };

    ghost laws = { partial_equiv_from_equiv nat_list_eq_equiv };

    fn eq(&self, other: &TestcaseName) -> bool {
        self.as_str() == other.as_str()
    }
}

impl Eq for TestcaseName {
    ghost use Rattle.std.specs.Cmp.Lexicographic.{nat_list_eq_equiv};

    ghost laws = { nat_list_eq_equiv };
}

impl fmt::Display for TestcaseName {
    ghost output = { λ n. Some (testcase_text n) };

    fn fmt<W: fmt::Write>(&self, f: &mut fmt::Formatter<W>) -> fmt::Result {
        let text = self.as_str();
        write!(f, "%{text}")
    }
}

/// The name of a function that is being built.
#[derive(PartialEq, Eq, Debug, Drop)]
pub enum UserFuncName {
    User(UserExternalName),
    Testcase(TestcaseName),
}

impl UserFuncName {
    /// The name by two numbers, as `u0:0`.
    pub fn user(namespace: u32, index: u32) -> UserFuncName
        ensures { result ≡ UserFuncName.User (record { namespace = namespace; index = index }) }
    {
        UserFuncName::User(UserExternalName::new(namespace, index))
    }

    /// The name by a text, as `%sample`.
    pub fn testcase(text: String) -> UserFuncName
        ensures { result ≡ UserFuncName.Testcase (string_bytes text) }
    {
        UserFuncName::Testcase(TestcaseName::new(text))
    }
}

impl Clone for UserFuncName {
    ghost is_clone = { λ old new. new ≡ old };

    fn clone(&self) -> Result<UserFuncName, AllocError> {
        match self {
            UserFuncName::User(name) => Ok(UserFuncName::User(*name)),
            UserFuncName::Testcase(name) => Ok(UserFuncName::Testcase(name.clone()?)),
        }
    }
}

impl fmt::Display for UserFuncName {
    ghost output = { λ n. Some (user_func_name_text n) };

    fn fmt<W: fmt::Write>(&self, f: &mut fmt::Formatter<W>) -> fmt::Result {
        match self {
            UserFuncName::User(name) => write!(f, "{name}"),
            UserFuncName::Testcase(name) => write!(f, "{name}"),
        }
    }
}

/// The name of an imported function or symbol.
#[derive(PartialEq, Eq, Debug)]
pub enum ExternalName {
    User(UserExternalName),
    TestCase(TestcaseName),
    /// A function of the C library. It prints as `%Memcpy`.
    LibCall(LibCall),
}

// By hand: a derived one is proved anew at each way out of a function that holds such a value.
impl Drop for ExternalName {
    fn drop(self) {
        match self {
            ExternalName::User(_) => {}
            ExternalName::TestCase(_) => {}
            ExternalName::LibCall(_) => {}
        }
    }
}

impl ExternalName {
    /// The name by two numbers, as `u0:0`.
    pub fn user(namespace: u32, index: u32) -> ExternalName
        ensures { result ≡ ExternalName.User (record { namespace = namespace; index = index }) }
    {
        ExternalName::User(UserExternalName::new(namespace, index))
    }

    /// The name by a text, as `%sample`.
    pub fn testcase(text: String) -> ExternalName
        ensures { result ≡ ExternalName.TestCase (string_bytes text) }
    {
        ExternalName::TestCase(TestcaseName::new(text))
    }
}

impl Clone for ExternalName {
    ghost is_clone = { λ old new. new ≡ old };

    fn clone(&self) -> Result<ExternalName, AllocError> {
        match self {
            ExternalName::User(name) => Ok(ExternalName::User(*name)),
            ExternalName::TestCase(name) => Ok(ExternalName::TestCase(name.clone()?)),
            ExternalName::LibCall(call) => Ok(ExternalName::LibCall(*call)),
        }
    }
}

impl fmt::Display for ExternalName {
    ghost output = { λ n. Some (external_name_text n) };

    fn fmt<W: fmt::Write>(&self, f: &mut fmt::Formatter<W>) -> fmt::Result {
        match self {
            ExternalName::User(name) => write!(f, "{name}"),
            ExternalName::TestCase(name) => write!(f, "{name}"),
            ExternalName::LibCall(call) => write!(f, "%{call}"),
        }
    }
}
