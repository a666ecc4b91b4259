//! Tests of the programs of `example_programs`, each in the threads of a session. What two of them promise is proved there; of
//! the others these tests hold that they work.

mod works;
