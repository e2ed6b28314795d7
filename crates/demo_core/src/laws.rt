//! Laws on the keys and the certificates of a demonstration.

ghost use Rattle.std.specs.Prelude.{◌≡◌, ℕ, true, Some, ◌+◌, ◌<◌, ◌≤◌, ◌^◌, List, length};
ghost use Rattle.der_core.specs.DerElement.{DerElement};
ghost use Rattle.der_core.specs.Encoding.{encoding, IsShort};
ghost use Rattle.der_core.specs.Refusals.{RefusesInner};
ghost use Rattle.der_core.specs.declared.error.DerError.{DerError};
ghost use Rattle.der_core.specs.declared.error.DerError.TheVariants as errors;
ghost use Rattle.key_core.specs.KeyIdentifier.{IsKeyIdentifier, RefusesKeyIdentifier};
ghost use Rattle.key_core.specs.Keys.{container_of, point_beside};
ghost use Rattle.key_core.specs.PrivatePkcs1.{IsPrivatePkcs1};
ghost use Rattle.key_core.specs.PublicHalf.{RefusesPublicHalf};
ghost use Rattle.key_core.specs.SignatureRules.{RefusesSignatureBy};
ghost use Rattle.key_core.specs.Signing.{IsKeyPair, arithmetic, sign_rules};
ghost use Rattle.key_core.specs.Verifying.{Accepts};
ghost use Rattle.key_core.specs.declared.error.KeyError.{KeyError};
ghost use Rattle.key_core.specs.declared.error.KeyError.TheVariants as key_errors;
ghost use Rattle.key_core.specs.declared.key_id.KeyIdGenError.{KeyIdGenError};
ghost use Rattle.key_core.specs.declared.key_id.KeyIdGenError.TheVariants as id_errors;
ghost use Rattle.key_core.specs.declared.key_id.KeyIdGenMethod.TheVariants.{SPKFullDER};
ghost use Rattle.key_core.specs.declared.private_key.PrivateKey.{PrivateKey};
ghost use Rattle.key_core.specs.declared.signature_algorithm.SignatureAlgorithm.TheVariants.{RsaPkcs1v15};
ghost use Rattle.key_core.specs.declared.signature_error.SignatureError.{SignatureError};
ghost use Rattle.key_core.specs.declared.signature_error.SignatureError.TheVariants as signature_errors;
ghost use Rattle.key_types.specs.PublicKeyInfo.{public_key_info};
ghost use Rattle.key_types.specs.declared.key_info.SubjectPublicKeyInfo.{SubjectPublicKeyInfo};
ghost use Rattle.sig_core.specs.DemoScheme.{demo_key, demo_signs, demo_verdict};
ghost use Rattle.sig_core.specs.declared.algorithm.SchemeKind.TheVariants.{Rsa};
ghost use Rattle.sig_core.specs.declared.algorithm.SigAlg.TheVariants.{RsaSha256};
ghost use Rattle.sig_core.specs.declared.hash.HashAlgorithm.TheVariants.{SHA2_256};
ghost use Rattle.asn1_types.specs.Calendar.{IsUtcYear};
ghost use Rattle.x509_types.specs.Certificate.{certificate};
ghost use Rattle.x509_types.specs.TbsCertificate.{tbs_certificate};
ghost use Rattle.x509_types.specs.declared.certificate.Certificate.{Certificate};
ghost use Rattle.x509_types.specs.declared.certificate.tbs_certificate.TbsCertificate.{TbsCertificate};
ghost use Rattle.der_core.specs.Steps.{RefusesBySteps};
ghost use Rattle.x509_core.specs.declared.error.CertError.{CertError};
ghost use Rattle.x509_core.specs.declared.error.CertError.TheVariants as cert_errors;
ghost use Rattle.x509_issuing.specs.BuiltCertificate.{IsTbsFor};
ghost use Rattle.x509_issuing.specs.Building.{IsSignedCertificate, build_steps};
ghost use Rattle.x509_issuing.specs.declared.builder.CertificateBuilder.{CertificateBuilder};
ghost use Rattle.x509_issuing.specs.declared.builder.IssuerInfos.{IssuerInfos};
ghost use Rattle.demo_core.specs.Builders.{IsStepBuilder};
ghost use Rattle.demo_core.specs.Certificates.{signature_under, signer_of, step_certificate, step_elements, step_key, step_key_id, step_rsa_key, step_tbs};
ghost use Rattle.demo_core.specs.Demonstration.{IsDemonstration};
ghost use Rattle.demo_core.specs.declared.demonstration.Demonstration.{Demonstration};
ghost use Rattle.demo_core.specs.declared.history.Step.{Step};
ghost use Rattle.demo_core.specs.History.{IsStepAt, demo_step};
ghost use Rattle.key_core.specs.SmallKeys.{demo_pair, signs_by_demo};
ghost use Rattle.demo_core.specs.Secrets.{AreStepKeys, step_secret};
ghost use Rattle.der_core.specs.Size.{size, AreSmall};

/// Each element that is written for a certificate of a demonstration is small.
pub fn certificates_are_small()
    ensures { (count index : ℕ) → index < count → count < 2 ^ 32
        → AreSmall (step_elements index (demo_step count index)) }
{}

/// Each step of a demonstration is issued by an earlier one, if by any, and two digits represent
/// its years.
pub fn steps_are_drawn_in_order()
    ensures { (count index : ℕ) → IsStepAt index (demo_step count index) }
{}

/// The demonstration scheme derives the public key of a step from its private one, and signs with
/// it.
pub fn secrets_have_keys()
    ensures derived { (index : ℕ)
        → demo_key Rsa (step_secret index) ≡ Some (encoding (step_rsa_key index)) }
    ensures signs { (index : ℕ) → demo_signs RsaSha256 (step_secret index) ≡ true }
{}

/// The keys of a step have one encoding and one key identifier, belong together under the
/// demonstration scheme, and it accepts one signature of a message by them.
pub fn step_keys_are_determined()
    ensures written { (index : ℕ) (key : PrivateKey) (info : SubjectPublicKeyInfo)
        → AreStepKeys index key info → public_key_info info ≡ step_key index }
    ensures identified { (index : ℕ) (key : PrivateKey) (info : SubjectPublicKeyInfo) (id : List ℕ)
        → AreStepKeys index key info → IsKeyIdentifier (SPKFullDER SHA2_256) info id
        → id ≡ step_key_id index }
    ensures paired { (index : ℕ) (key : PrivateKey) (info : SubjectPublicKeyInfo)
        → AreStepKeys index key info → IsKeyPair demo_pair key info }
    ensures accepted { (index : ℕ) (key : PrivateKey) (info : SubjectPublicKeyInfo)
        (message signature : List ℕ) → AreStepKeys index key info
        → Accepts demo_verdict (RsaPkcs1v15 SHA2_256) info message signature
        → signature ≡ signature_under index message }
{}

/// Only out of memory is a reason why the private key of a step has no public key, that one no key
/// identifier, or why a message isn't signed.
pub fn step_keys_are_refused_for_memory_alone()
    ensures public { (index : ℕ) (key : PrivateKey) (e : KeyError)
        → IsPrivatePkcs1 (step_secret index) key
        → RefusesPublicHalf (container_of key).private_key (point_beside key) e
        → e ≡ key_errors.Memory }
    ensures identified { (index : ℕ) (key : PrivateKey) (info : SubjectPublicKeyInfo)
        (e : KeyIdGenError) → AreStepKeys index key info
        → RefusesKeyIdentifier (SPKFullDER SHA2_256) info e → e ≡ id_errors.Memory }
    ensures signed { (index : ℕ) (key : PrivateKey) (message : List ℕ) (e : SignatureError)
        → IsPrivatePkcs1 (step_secret index) key
        → RefusesSignatureBy (sign_rules signs_by_demo (RsaPkcs1v15 SHA2_256) key message) e
        → e ≡ signature_errors.Memory }
{}

/// The certificate that is built for a step is the step's, element for element. Only out of memory
/// refuses it.
pub fn step_certificates_are_determined()
    ensures tbs { (index : ℕ) (step : Step) (b : CertificateBuilder) (issuer : IssuerInfos)
        (tbs : TbsCertificate) → index < 255 → IsUtcYear step.years.first
        → IsUtcYear step.years.last → IsStepBuilder index step b issuer
        → IsTbsFor demo_verdict b issuer (index + 1) tbs
        → tbs_certificate tbs ≡ step_tbs index (signer_of index step.issuer) step }
    ensures certificate { (index : ℕ) (step : Step) (b : CertificateBuilder) (issuer : IssuerInfos)
        (c : Certificate) → index < 255 → IsUtcYear step.years.first → IsUtcYear step.years.last
        → IsStepBuilder index step b issuer
        → IsSignedCertificate demo_verdict demo_pair b.signature_hash_type issuer.key.now
        (IsTbsFor demo_verdict b issuer (index + 1)) c
        → certificate c ≡ step_certificate index step }
    ensures refused { (index : ℕ) (step : Step) (b : CertificateBuilder) (issuer : IssuerInfos)
        (e : CertError) → index < 255 → signer_of index step.issuer < 255
        → IsUtcYear step.years.first → IsUtcYear step.years.last
        → IsStepBuilder index step b issuer
        → RefusesBySteps cert_errors.Memory
        (build_steps (arithmetic demo_verdict signs_by_demo demo_pair) b (index + 1)) e
        → e ≡ cert_errors.Memory }
{}

/// Demonstrations of as many steps report the same.
pub fn demonstrations_are_determined()
    ensures { (count : ℕ) (a b : Demonstration) → IsDemonstration count a → IsDemonstration count b
        → a ≡ b }
{}
