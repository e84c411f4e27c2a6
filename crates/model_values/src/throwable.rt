/// The classes of what a script can throw or catch.
#[derive(Clone, Copy, Debug, PartialEq, Eq)]
pub enum Class {
    /// `hudson.AbortException`, thrown by the steps `error` and `sh`.
    Abort,
    /// `org.jenkinsci.plugins.workflow.steps.FlowInterruptedException`, of an input that was refused.
    FlowInterrupted,
    /// `java.lang.ArithmeticException`
    Arithmetic,
    /// `groovy.lang.MissingPropertyException`
    MissingProperty,
    /// `groovy.lang.MissingMethodException`
    MissingMethod,
    /// `java.lang.NullPointerException`
    NullPointer,
    /// `java.lang.IllegalArgumentException`
    IllegalArgument,
    /// `java.lang.IndexOutOfBoundsException`
    IndexOutOfBounds,
    /// `java.lang.NumberFormatException`
    NumberFormat,
    /// `java.util.NoSuchElementException`
    NoSuchElement,
    /// `org.jenkinsci.plugins.workflow.steps.MissingContextVariableException`
    MissingContextVariable,
    /// `java.lang.Exception`
    Exception,
    /// `java.lang.RuntimeException`
    RuntimeException,
    /// `java.lang.NoSuchMethodError`, which `catch (Exception e)` does not catch.
    NoSuchMethodError,
    /// `java.lang.Error`, which `catch (Exception e)` does not catch.
    Error,
}

impl Class {
    ghost use Rattle.std.specs.Prelude.{◌≡◌};
    ghost use Rattle.model_values.specs.Throwables.{class_name, is_exception};

    /// Its name in Jenkins, Groovy or Java, as the text of a throwable begins.
    pub fn name(self) -> &'static str
        ensures { result.now ≡ class_name self }
    {
        match self {
            Class::Abort => "hudson.AbortException",
            Class::FlowInterrupted => {
                "org.jenkinsci.plugins.workflow.steps.FlowInterruptedException"
            }
            Class::Arithmetic => "java.lang.ArithmeticException",
            Class::MissingProperty => "groovy.lang.MissingPropertyException",
            Class::MissingMethod => "groovy.lang.MissingMethodException",
            Class::NullPointer => "java.lang.NullPointerException",
            Class::IllegalArgument => "java.lang.IllegalArgumentException",
            Class::IndexOutOfBounds => "java.lang.IndexOutOfBoundsException",
            Class::NumberFormat => "java.lang.NumberFormatException",
            Class::NoSuchElement => "java.util.NoSuchElementException",
            Class::MissingContextVariable => {
                "org.jenkinsci.plugins.workflow.steps.MissingContextVariableException"
            }
            Class::Exception => "java.lang.Exception",
            Class::RuntimeException => "java.lang.RuntimeException",
            Class::NoSuchMethodError => "java.lang.NoSuchMethodError",
            Class::Error => "java.lang.Error",
        }
    }

    /// Whether `catch (Exception e)` catches it: all but the two Errors.
    pub fn is_exception(self) -> bool
        ensures { result ≡ is_exception self }
    {
        !matches!(self, Class::NoSuchMethodError | Class::Error)
    }
}
